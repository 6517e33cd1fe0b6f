//! How an example is taken.

use explore::Most;
use explore_text::{Orders, Run, Sample, Task};

/// All orders, where there are no more than 10,000 states.
const ALL: Task = Task::Judge(Orders::All(Most {
    states: 10_000,
    bytes: usize::MAX,
}));

/// The sample that `smp sample` makes where no word says.
const SAMPLED: Task = Task::Judge(Orders::Sampled(Sample {
    seed: 1,
    runs: 100,
    steps: 10_000,
}));

/// The run that `smp script` writes down where no word says.
const WRITTEN: Task = Task::Write(Run {
    seed: 1,
    number: 0,
    steps: 10_000,
});

/// How an example is taken.
#[derive(Clone, Copy)]
pub enum Kind {
    /// By `smp_runner replay`.
    Replay,
    /// By `smp_runner run`.
    Run,
    /// By `smp lanes`.
    Lanes,
    /// By `smp explore`, `smp sample` or `smp script`.
    Explore(Task),
    /// By `smp judge`.
    Judge,
    /// By `smp judge --from ftrace`, each text between form feeds by itself.
    Kernel,
    /// By `smp judge --from ftrace --order`, alike.
    KernelOrder,
    /// By `smp judge --from ftrace --print`.
    KernelTrace,
    /// By `smp svg --from ftrace --around`, with this line.
    KernelPicture(u32),
    /// By `smp events`.
    Events,
}

/// How an example is taken, by its word and the line's end: `None` where the word is none of these.
pub fn kind_of(word: &[u8]) -> Option<Kind> {
    let kinds: [(&[u8], Kind); 12] = [
        (b"replay\n".as_slice(), Kind::Replay),
        (b"run\n".as_slice(), Kind::Run),
        (b"lanes\n".as_slice(), Kind::Lanes),
        (b"explore\n".as_slice(), Kind::Explore(ALL)),
        (b"sample\n".as_slice(), Kind::Explore(SAMPLED)),
        (b"script\n".as_slice(), Kind::Explore(WRITTEN)),
        (b"judge\n".as_slice(), Kind::Judge),
        (b"ftrace\n".as_slice(), Kind::Kernel),
        (b"ftrace order\n".as_slice(), Kind::KernelOrder),
        (b"ftrace print\n".as_slice(), Kind::KernelTrace),
        (b"ftrace around 9\n".as_slice(), Kind::KernelPicture(9)),
        (b"events\n".as_slice(), Kind::Events),
    ];
    for (name, kind) in kinds {
        if word == name {
            return Some(kind);
        }
    }
    None
}
