//! A job of ten commands, written.

use crate::text_tests::ten_commands::job;
use crate::text_tests::testing::sink_failing_at;
use std::test::Fail;
use trace_text::{Failed, write_job};

#[test]
fn a_job_of_two_threads(rt: HostRuntime) -> Result<(), Fail> {
    let mut sink = sink_failing_at(rt.alloc(), &[])?;
    assert_eq!(rt; write_job(&job(rt.alloc())?, &mut sink), Ok(()));
    let text = b"rtheap 1 threads 2 blocks 65535 live 0 object 2 shared 1024
thread 0
new 3 5
arr 15 0
set 1 4611686018427387903
nil 0
mov 4 3
thread 1
get 2 0 17
put 0 1 12
len 7
same 8 9
say 10
end
";
    assert_eq!(rt; sink.bytes(), text.as_slice());
    Ok(())
}

#[test]
fn a_put_that_fails_leaves_the_lines_before(rt: HostRuntime) -> Result<(), Fail> {
    let mut sink = sink_failing_at(rt.alloc(), &[2])?;
    assert_eq!(rt; write_job(&job(rt.alloc())?, &mut sink), Err(Failed));
    let text = b"rtheap 1 threads 2 blocks 65535 live 0 object 2 shared 1024\nthread 0\n";
    assert_eq!(rt; sink.bytes(), text.as_slice());
    Ok(())
}
