//! How tests watch a call that may be refused memory, or a thread. `gate/refusals/refused.py` refuses the requests between the two lines printed
//! around the call.

use std::io::Print;
use string_cache::Fault;
use table_generator::tables::GenFault;
use text_streams::faults::AppFault;

/// A fault that may come from a refused request.
pub trait Refusal: Drop {
    fn is_of_refusal(&self) -> bool;
}

impl Refusal for Fault {
    fn is_of_refusal(&self) -> bool {
        *self == Fault::Memory
    }
}

impl Refusal for GenFault {
    fn is_of_refusal(&self) -> bool {
        *self == GenFault::Memory
    }
}

/// A thread that can't be started may need memory as well.
impl Refusal for AppFault {
    fn is_of_refusal(&self) -> bool {
        match self {
            AppFault::Intern(fault) => fault.is_of_refusal(),
            AppFault::Gen(fault) => fault.is_of_refusal(),
            AppFault::Worker => true,
            _ => false,
        }
    }
}

/// How a call ends.
#[derive(Clone, Copy)]
pub enum End {
    /// With its answer.
    Given,
    /// A request was refused, and it keeps no memory.
    Refused,
    /// A request was refused, and it keeps what it did until then.
    RefusedMidway,
}

impl End {
    /// The end of a call that keeps nothing if a request is refused.
    pub fn of<T, E: Refusal>(answer: &Result<T, E>) -> End {
        match answer {
            Err(fault) if fault.is_of_refusal() => End::Refused,
            _ => End::Given,
        }
    }
}

/// Prints the line before the call.
pub fn begin<R: Print>(rt: &R) {
    let _ = println!(rt; "== call");
}

/// Prints the line after the call.
pub fn finish<R: Print>(rt: &R, how: End) {
    let _ = match how {
        End::Given => println!(rt; "== given"),
        End::Refused => println!(rt; "== refused"),
        End::RefusedMidway => println!(rt; "== refused midway"),
    };
}

/// Prints the line after the call, which keeps nothing if a request is refused, and returns whether one was.
pub fn finishes_refused<T, E: Refusal, R: Print>(rt: &R, answer: &Result<T, E>) -> bool {
    let end = End::of(answer);
    finish(rt, end);
    matches!(end, End::Refused)
}

/// What a call returns or, if a request is refused, what it returns once it is made again.
pub fn at_last<T, E: Refusal, R: Print, F: Fn() -> Result<T, E>>(rt: &R, call: F) -> Result<T, E>
    requires { F.IsAlwaysCallable call }
{
    begin(rt);
    let answer = call();
    finish(rt, End::of(&answer));
    match answer {
        Err(fault) if fault.is_of_refusal() => call(),
        made => made,
    }
}
