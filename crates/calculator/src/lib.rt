// Answers questions to a kind of number, one line of text each.
#![tactic(auto)]

ghost use Rattle.std.specs.Prelude.{◌≡◌, IfOk, string_bytes};
ghost use Rattle.calculator.specs.Answering.{Exact, replied_in};
ghost use Rattle.calculator.specs.Theorems.{Agree, Examples};
ghost use Rattle.calculator.specs.Lines.{shown, answered};

use answering::{Reply, respond};
use kinds::fractions::Fractions;
use kinds::small::SmallWholes;
use kinds::thousandths::Thousandths;
use number::Fault;
use reading::{KindName, NotUnderstood, Question, read};
use std::alloc::{AllocError, Global};

pub mod answering;
pub mod reading;

// The answer of the kind of that name.
pub fn respond_in(kind: KindName, question: Question) -> Result<Reply, Fault>
    ensures value { result ≡ replied_in kind question }
    ensures exact { Exact question result }
{
    match kind {
        KindName::Fractions => respond::<Fractions>(question),
        KindName::Thousandths => respond::<Thousandths>(question),
        KindName::Small => respond::<SmallWholes>(question),
    }
}

// What is printed of a reply.
pub fn text(heap: Global, reply: Result<Reply, Fault>) -> Result<String, AllocError>
    ensures { IfOk result (λ s. string_bytes s ≡ shown reply) }
{
    match reply {
        Ok(reply) => reply.to_string(heap),
        Err(fault) => fault.to_string(heap),
    }
}

// What is printed for a line.
pub fn answer(heap: Global, line: &str) -> Result<String, AllocError>
    ensures { IfOk result (λ s. string_bytes s ≡ answered line.now) }
{
    match read(line) {
        Some((kind, question)) => text(heap, respond_in(kind, question)),
        None => NotUnderstood.to_string(heap),
    }
}

// Kinds that reply to a question reply the same.
pub fn kinds_agree()
    ensures { Agree }
{}

// Lines with their answers, by computing.
pub fn examples_stand()
    ensures { Examples }
{}
