// The third round: the bodies, in the order of the sheet.
ghost use Rattle.std.specs.Prelude.{◌≡◌, ◌≤◌, length};
ghost use Rattle.records.specs.Rows.{row};
ghost use Rattle.rules.specs.Limits.{byte_limit};
ghost use Rattle.rules.specs.ThirdRound.{between, bodies_pass};
ghost use Rattle.sheet.specs.Held.{tables_of};

use crate::branch::Branch;
use crate::starting::opening;
use crate::tables::Tables;
use arrayvec::ArrayVec;
use records::{Cause, Fault, Reader, Record};
use rules::{Finding, WAITING, Waiting};

// Whether every body of a sheet that has passed the rounds before is right, or the first fault.
pub(crate) fn third_round(tables: &Tables, bytes: &[u8]) -> Result<(), Fault>
    requires short { length bytes.now ≤ byte_limit }
    ensures { result ≡ bodies_pass (tables_of tables.now) (row bytes.now 0) between }
{
    let mut reader = Reader::new(bytes);
    // No index is counted. A body ends where its last branch does, in the midst of records, so each loop is left from inside.
    'bodies: loop {
        let begins = reader.place();
        let Some(first) = reader.next()? else {
            return Ok(());
        };
        let function = match first {
            Record::ListType(_) => continue 'bodies,
            Record::Step(_) => return Err(Fault {
                cause: Cause::BodyEnd,
                place: begins,
            }),
            Record::Function(function) => function,
        };
        let mut account = opening(&function);
        // the second branches that wait, the newest last
        let mut stack = ArrayVec::<Waiting, WAITING>::new();
        'branches: loop {
            'records: loop {
                let place = reader.place();
                let at_place = |cause| Fault { cause, place };
                let Some(Record::Step(step)) = reader.next()? else {
                    return Err(at_place(Cause::BodyEnd));
                };
                let branch = Branch {
                    tables,
                    function: &function,
                    waiting: stack.len(),
                    account,
                };
                match branch.finding_of(step).map_err(at_place)? {
                    Finding::Onward(changed) => account = changed,
                    Finding::Forks {
                        first,
                        second,
                        later,
                    } => {
                        stack.push(Waiting {
                            place,
                            second,
                            account: later,
                        });
                        account = first;
                    }
                    Finding::Ends => break 'records,
                }
            }
            let Some(waiting) = stack.pop() else {
                break 'branches;
            };
            let here = reader.place();
            if waiting.second as usize != here {
                return Err(Fault {
                    cause: Cause::WrongSecond,
                    place: waiting.place,
                });
            }
            account = waiting.account;
        }
    }
}
