//! Times the calls of the table for one thread, and those of the set that threads share.
#![tactic(auto)]

mod calls;
mod crowd;
mod elements;
mod hot;
mod live;
mod named;
mod phases;
mod sets;
mod table;
mod texts;

use phases::{Phase, Phases};
use std::alloc::Global;
use std::hash::RandomState;
use std::io::Print;
use std::random::RandomSource;
use std::rt::{Clock, Env};
use std::sync::Wait;
use std::thread::Threads;
use std::{env, fmt};
use string_cache::table::TrustedTexts;
use string_cache::word::Buckets;
use texts::{Kind, Texts};

/// What is printed for each kind of call.
#[derive(Clone, Copy)]
enum Report {
    /// How many calls did what they were made for: always the same.
    Counts,
    /// How many nanoseconds a call took.
    Times,
}

/// What is timed.
#[derive(Clone, Copy, PartialEq, Eq)]
enum Subject {
    /// The table for one thread with the fast hasher, with this many texts.
    Table,
    /// The same with random keys, with this many texts.
    Keyed,
    /// The same, with this many texts that all have the same hash under the fast hasher.
    Chosen,
    /// The set, on a few texts over and over, this many times.
    Hot,
    /// The set, with this many live texts.
    Live,
    /// The set, with this many texts, interned by threads at once.
    Crowd,
    /// The set with a name, with this many live texts.
    Named,
    /// The set with a name, with this many texts, interned by threads at once.
    NamedCrowd,
}

/// What the arguments ask for.
#[derive(Clone, Copy)]
struct Command {
    report: Report,
    /// `None`: all.
    only: Option<Subject>,
    /// Of texts, or of rounds.
    number: usize,
    /// Of a set.
    buckets: Buckets,
    /// How many threads intern at once.
    workers: usize,
}

impl Command {
    /// Whether a subject is to be timed.
    fn asks_for(&self, subject: Subject) -> bool {
        match self.only {
            Some(only) => only == subject,
            None => true,
        }
    }
}

impl fmt::Display for Subject {
    fn fmt<W: fmt::Write>(&self, f: &mut fmt::Formatter<W>) -> fmt::Result {
        f.write_str(match self {
            Subject::Table => "table",
            Subject::Keyed => "table with random keys",
            Subject::Chosen => "table with random keys, chosen texts",
            Subject::Hot => "set, hot",
            Subject::Live => "set, live texts",
            Subject::Crowd => "set, threads",
            Subject::Named => "set with a name, live texts",
            Subject::NamedCrowd => "set with a name, threads",
        })
    }
}

impl Subject {
    /// How many texts are made for it if the arguments have this number: none if it has a few of its own.
    fn texts(self, number: usize) -> usize {
        match self {
            Subject::Hot => 0,
            _ => number,
        }
    }

    /// Which they are.
    fn kind(self) -> Kind {
        match self {
            Subject::Chosen => Kind::Chosen,
            _ => Kind::Random,
        }
    }
}

const ALL: [Subject; 8] = [
    Subject::Table,
    Subject::Keyed,
    Subject::Chosen,
    Subject::Hot,
    Subject::Live,
    Subject::Crowd,
    Subject::Named,
    Subject::NamedCrowd,
];

/// The subject that the word names, or `None` if it names all. `Err` if it names neither.
fn subject_of(word: &str) -> Result<Option<Subject>, ()> {
    match word {
        "table" => Ok(Some(Subject::Table)),
        "keyed" => Ok(Some(Subject::Keyed)),
        "chosen" => Ok(Some(Subject::Chosen)),
        "hot" => Ok(Some(Subject::Hot)),
        "live" => Ok(Some(Subject::Live)),
        "crowd" => Ok(Some(Subject::Crowd)),
        "named" => Ok(Some(Subject::Named)),
        "named_crowd" => Ok(Some(Subject::NamedCrowd)),
        "all" => Ok(None),
        _ => Err(()),
    }
}

/// What the words ask for, or `None` if they aren't those of a command.
fn command_of(words: &[String]) -> Option<Command> {
    let [report, subject, number, bits, workers] = words else {
        return None;
    };
    let report = match report.as_str() {
        "counts" => Report::Counts,
        "times" => Report::Times,
        _ => return None,
    };
    Some(Command {
        report,
        only: subject_of(subject.as_str()).ok()?,
        number: number.as_str().parse::<usize>().ok()?,
        buckets: bits.as_str().parse::<u8>().ok().and_then(Buckets::new)?,
        workers: workers.as_str().parse::<usize>().ok()?,
    })
}

/// `None` if the arguments aren't those of a command.
fn asked_for(rt: &(impl Env + AllocGlobal)) -> Result<Option<Command>, anyhow::Error> {
    let words: Vec<String> = env::args(rt)?.skip(1).collect(rt.alloc())?;
    Ok(command_of(words.as_slice()))
}

/// Makes the calls, and times them.
fn measure<R: Threads + Wait + Clock + RandomSource + Sync>(
    rt: &R,
    alloc: Global,
    subject: Subject,
    command: &Command,
    phases: &mut Phases,
) -> Result<(), anyhow::Error> {
    let texts = Texts::new(alloc, subject.kind(), subject.texts(command.number))?;
    measure_over(rt, alloc, subject, command, &texts, phases)
}

/// The same, over these texts.
fn measure_over<R: Threads + Wait + Clock + RandomSource + Sync>(
    rt: &R,
    alloc: Global,
    subject: Subject,
    command: &Command,
    texts: &Texts,
    phases: &mut Phases,
) -> Result<(), anyhow::Error> {
    let buckets = command.buckets;
    match subject {
        Subject::Table => table::measure(rt, alloc, TrustedTexts, texts, phases),
        Subject::Keyed | Subject::Chosen => {
            table::measure(rt, alloc, RandomState::new(rt)?, texts, phases)
        }
        Subject::Hot => hot::measure(rt, alloc, buckets, command.number, phases),
        Subject::Live => live::measure(rt, alloc, buckets, texts, phases),
        Subject::Crowd => crowd::measure(rt, alloc, buckets, texts, command.workers, phases),
        Subject::Named => named::measure(rt, alloc, buckets, texts, phases),
        Subject::NamedCrowd => {
            crowd::measure_named(rt, alloc, buckets, texts, command.workers, phases)
        }
    }
}

fn print(rt: &impl Print, report: Report, phase: &Phase) -> Result<(), anyhow::Error> {
    match report {
        Report::Counts => println!(rt; "{}: {} of {}", phase.name, phase.done, phase.calls)?,
        Report::Times => {
            let tenths = phase.tenths_each();
            println!(rt; "{}: {}.{} ns", phase.name, tenths / 10, tenths % 10)?;
        }
    }
    Ok(())
}

fn print_all(rt: &impl Print, report: Report, phases: &[Phase]) -> Result<(), anyhow::Error> {
    for phase in phases {
        print(rt, report, phase)?;
    }
    Ok(())
}

/// Times a subject, and prints the results.
fn run_subject<R: Threads + Wait + Clock + RandomSource + Print + Sync>(
    rt: &R,
    alloc: Global,
    subject: Subject,
    command: &Command,
) -> Result<(), anyhow::Error> {
    println!(rt; "{subject}:")?;
    let mut phases = Phases::new(alloc);
    measure(rt, alloc, subject, command, &mut phases)?;
    print_all(rt, command.report, phases.list())
}

/// Times what is asked for, one subject after the other.
fn run<R: Threads + Wait + Clock + RandomSource + Print + Sync>(
    rt: &R,
    alloc: Global,
    command: &Command,
) -> Result<(), anyhow::Error> {
    for subject in &ALL {
        if command.asks_for(*subject) {
            run_subject(rt, alloc, *subject, command)?;
        }
    }
    Ok(())
}

fn main(rt: HostRuntime) -> Result<(), anyhow::Error> {
    let Some(command) = asked_for(&rt)? else {
        println!(rt;
            "usage: interning_speed counts|times table|keyed|chosen|hot|live|crowd|named|named_crowd|all N BITS WORKERS"
        )?;
        return Ok(());
    };
    run(&rt, rt.alloc(), &command)
}
