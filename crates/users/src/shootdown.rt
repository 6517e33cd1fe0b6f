//! TLB shootdowns among threads: each of four CPUs drops an address space from the TLBs of all CPUs that use it, and
//! goes on once they have (`arch/arm/kernel/smp_tlb.c: flush_tlb_mm`).
//!
//! What is proved, by the clauses of public calls alone:
//! - at the caller: when `shoot_down` returns, each user of the space that it has called has run the flush, in calls that some
//!   words show (`ended`), and its own TLB holds no entry of the space (`own`);
//! - at each CPU that is given back: its TLB holds no entry of a space of which it has run a flush (`run_crew`, by what its
//!   handler leads to).
//!
//! That the words of the first are those of the CPUs of the second is how the table is proved, and no clause can say it.
//! That the entries are gone when the call returns is thus only tested: the program prints how many were gone then.

mod run;
mod shoot;
mod space;
mod tlb;

pub use run::{Report, run};
use std::io;

/// Prints what a run has shown: a line for each address space that was dropped, and one for all.
pub fn print<R: Print>(rt: &R, report: &Report) -> io::Result<()> {
    for (space, seen) in report.seen.iter().enumerate() {
        println!(rt;
            "shootdown: space {space}: {} CPUs called, {} entries gone",
            seen.called(),
            seen.gone()
        )?;
    }
    println!(rt;
        "shootdown: {} entries left, {} calls run",
        report.left, report.calls
    )
}
