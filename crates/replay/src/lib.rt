// A plan driven by records: the text that an input of bytes is answered with.
#![tactic(auto)]

ghost use Rattle.std.specs.Prelude.{[], IfOk, string_bytes};
ghost use Rattle.replay.specs.Says.{Says, SomeText, OneText};

use crate::session::Session;
use records::Reader;
use std::alloc::{AllocError, Global};

mod fields;
mod question;
mod session;
mod unanswered;
mod work;

// Answers the records of an input, first to last, on a plan that is empty at first: a line for each evaluation, a line for
// each declined record, and a last line with the numbers of parts and passes.
#[tactic(auto, using(crate::proofs::Turning::read_on, crate::proofs::Turning::read_all))]
pub fn respond(alloc: Global, input: &[u8]) -> Result<String, AllocError>
    ensures { IfOk result (λ text. Says input.now 0 [] (string_bytes text)) }
{
    let mut out = String::new(alloc);
    let mut session = Session::new(alloc)?;
    for read in Reader::new(input) {
        session.answer(read, &mut out)?;
    }
    session.close(&mut out)?;
    Ok(out)
}

// A theorem: there is a text for every input, and only one.
#[tactic(auto, using(crate::proofs::SomeText::some_text, crate::proofs::OnlyText::only_text))]
pub fn one_text()
    ensures some { SomeText }
    ensures one { OneText }
{}
