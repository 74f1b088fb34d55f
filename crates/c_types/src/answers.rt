// What writing a message or a snapshot and the next host answer, as structs.
ghost use Rattle.std.specs.Prelude.{◌≡◌};
ghost use Rattle.c_types.specs.Answers.{number_by, written_by, next_host_by};

use super::{NextHostData, WrittenData};
use refusal::{ACCEPTED, Reason};

// The number that C is handed: `refusal::number_of` for whatever the call was refused with.
fn number_of<T, E: Reason>(answer: &Result<T, E>) -> u32
    ensures { result ≡ number_by E.said answer.now }
{
    match answer {
        Ok(_) => ACCEPTED,
        Err(why) => why.as_number(),
    }
}

// Of a message and of a snapshot.
#[tactic(auto, using(crate::proofs::AnswerLaws::written_parts))]
pub fn written_data<E: Reason>(written: Result<usize, E>) -> WrittenData
    ensures { result ≡ written_by E.said written }
{
    WrittenData {
        number: number_of(&written),
        bytes: written.unwrap_or(0),
    }
}

#[tactic(auto, using(crate::proofs::AnswerLaws::next_host_parts))]
pub fn next_host_data<E: Reason>(next: Result<u32, E>) -> NextHostData
    ensures { result ≡ next_host_by E.said next }
{
    NextHostData {
        number: number_of(&next),
        id: next.unwrap_or(0),
    }
}
