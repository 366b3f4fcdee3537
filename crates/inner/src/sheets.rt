// The sheet that was loaded, and what it says of a type and of a function.
ghost use Rattle.std.specs.Prelude.{◌≡◌, true, is_some, Some};
ghost use Rattle.inner.specs.Kinds.{KnownFunction, KnownType, element_in, function_in};

use crate::kept::Inner;
use rules::FunctionEntry;
use sheet::Sheet;

impl Inner {
    // The sheet that was loaded.
    pub fn sheet(&self) -> &Sheet
        requires loaded { is_some self.now.sheet ≡ true }
        ensures { self.now.sheet ≡ Some result.now }
    {
        let Some(sheet) = &self.sheet else {
            unreachable!()
        };
        sheet
    }

    // The element type of a list type of the sheet.
    pub fn element_type(&self, of: u8) -> u8
        requires known { KnownType self.now.sheet of }
        ensures { result ≡ element_in self.now.sheet of }
    {
        let Some(t) = self.sheet().list_type(of) else {
            unreachable!()
        };
        t.element
    }

    // A function of the sheet. Apart from the look-up of a type: each is in a table of its own, and answers another type.
    pub fn function(&self, number: u8) -> FunctionEntry
        requires known { KnownFunction self.now.sheet number }
        ensures { result ≡ function_in self.now.sheet number }
    {
        let Some(function) = self.sheet().function(number) else {
            unreachable!()
        };
        function
    }
}
