//! Streams that fail in the middle: what was written before stays, and the answer names the stream.

use crate::fault_tests::slim::{mailed, reported};
use historian_core::Stop;
use std::test::Fail;

#[test]
fn a_fault_stops_the_report(rt: HostRuntime) -> Result<(), Fail> {
    let text = b"20 80\n50\n90\n";
    let one = b"least 50 greatest 50 mean 50 alarms 0\n".as_slice();
    let rows: [(&[u64], &[u64], Stop); 2] = [
        (&[10], &[], Stop::ReadFault),
        (&[], &[1], Stop::WriteFault),
    ];
    for (read_fails, write_fails, stop) in rows {
        let (end, sink) = reported(rt.alloc(), text, (read_fails, write_fails))?;
        assert_eq!(rt; end, Err(stop));
        assert_eq!(rt; sink.bytes(), one);
    }
    Ok(())
}

#[test]
fn a_fault_stops_the_mail(rt: HostRuntime) -> Result<(), Fail> {
    let job = "rtheap 2 threads 1 blocks 64 live 20 object 2 shared 0
thread 0
set 1 5
say 1
end
";
    let rows: [(&[u64], &[u64], (u8, u8), &[u8]); 2] = [
        (&[0], &[], (5, 5), b"rt_mail: read fault\n"),
        (&[], &[1], (6, 0), b"0 got 1"),
    ];
    for (read_fails, write_fails, statuses, lines) in rows {
        let (ended, sink) = mailed(&rt, rt.alloc(), job, (read_fails, write_fails))?;
        assert_eq!(rt; ended, statuses);
        assert_eq!(rt; sink.bytes(), lines);
    }
    Ok(())
}
