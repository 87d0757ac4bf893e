//! What `say` and `steal` have in common.

ghost use Rattle.std.specs.Prelude.{◌≡◌, IfOk, map};
ghost use Rattle.nys_schedule.specs.Lines.{stated_of};

use crate::list::list_of;
use crate::statement::statement_of;
use nys_bytes::NoMemory;
use nys_rules::Parties;
use nys_stmt::Statement;
use nys_text::num;
use std::alloc::Global;

/// A statement of party `a` to others.
#[derive(Drop)]
pub(crate) struct Stated {
    pub(crate) a: u32,
    pub(crate) to: Parties,
    pub(crate) statement: Statement,
}

/// The party, the list and the statement that words write.
#[tactic(auto, unfolding(crate::specs::Lines::stated_of))]
pub(crate) fn stated_of(alloc: Global, words: &[&[u8]]) -> Result<Option<Stated>, NoMemory>
    ensures { IfOk result (λ stated. stated ≡ stated_of (map (λ word. word.now) words.now)) }
{
    match words {
        [] => Ok(None),
        [_] => Ok(None),
        [a, list, words @ ..] => {
            let Some(a) = num(a) else {
                return Ok(None);
            };
            let Some(to) = list_of(alloc, list)? else {
                return Ok(None);
            };
            let Some(statement) = statement_of(alloc, words)? else {
                return Ok(None);
            };
            Ok(Some(Stated { a, to, statement }))
        }
    }
}
