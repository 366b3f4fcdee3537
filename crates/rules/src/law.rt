// The theorem about the verdict, as a contract.
ghost use Rattle.rules.specs.Law.{CheckAcceptsWhatTheRulesDerive};

// The verdict accepts a sheet, with its tables, exactly when it has the form with these tables and every function derives.
pub fn check_accepts_what_the_rules_derive()
    ensures { CheckAcceptsWhatTheRulesDerive }
{}
