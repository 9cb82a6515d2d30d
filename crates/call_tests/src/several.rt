//! Runs of several threads.

use crate::testing::{Call, made_at};
use std::alloc::Global;
use std::test::Fail;
use test_kit::Meeting;

/// Two threads that each show the shared array twice, on a heap whose rate is 8.
const TWO_SAYS: &str = "rtheap 1 threads 2 blocks 64 live 20 object 2 shared 4
thread 0
say 0
say 0
thread 1
say 0
say 0
end
";

// Each thread waits at its second command until the other has come there, and the pace is told of
// each command once.
#[test]
fn two_threads_meet(rt: HostRuntime) -> Result<(), Fail> {
    let pace = Meeting::new();
    let (exit, sink) = made_at(&rt, rt.alloc(), &Call::run(TWO_SAYS), &pace)?;
    assert_eq!(rt; (exit.status, exit.due), (0, 0));
    assert_eq!(rt;
        sink.bytes(),
        b"0 ref 2.0\n0 ref 2.0\n1 ref 2.0\n1 ref 2.0\nend cycles 1 work 0\n".as_slice()
    );
    assert!(rt; pace.took_place());
    Ok(())
}

/// A job in which each of so many threads shows the shared array twice, and what is written.
fn meeting(alloc: Global, threads: u32) -> Result<(String, String), Fail> {
    let header = "blocks 128 live 40 object 2 shared 4\n";
    let mut text = format!(in alloc; "rtheap 1 threads {threads} {header}")?;
    let mut written = String::new(alloc);
    for t in 0..threads {
        text.push_str(format!(in alloc; "thread {t}\nsay 0\nsay 0\n")?.as_str())?;
        let told = format!(in alloc; "{t} ref {threads}.0\n{t} ref {threads}.0\n")?;
        written.push_str(told.as_str())?;
    }
    text.push_str("end\n")?;
    written.push_str("end cycles 1 work 0\n")?;
    Ok((text, written))
}

// Each thread waits at its second command until all others have come there.
#[test]
fn threads_run_beside_each_other(rt: HostRuntime) -> Result<(), Fail> {
    let alloc = rt.alloc();
    for threads in 3..=4_u32 {
        let pace = Meeting::of(threads);
        let (text, written) = meeting(alloc, threads)?;
        let (exit, sink) = made_at(&rt, alloc, &Call::run(text.as_str()), &pace)?;
        assert_eq!(rt; (exit.status, exit.due), (0, 0));
        assert_eq!(rt; sink.bytes(), written.as_bytes());
        assert!(rt; pace.took_place());
    }
    Ok(())
}
