//! Whole jobs whose threads send what they say, from their texts to their letters.

use crate::slim::mail::{Mail, called, delivered, delivered_through_one};
use heap_system::NoPace;
use std::alloc::{AllocError, Global};
use std::process::Abort;
use std::rt::Clock;
use std::sync::atomic::{AtomicU64, Ordering};
use std::test::Fail;
use std::thread;
use std::time::Duration;
use test_kit::Meeting;

#[test]
fn a_thread_sends_ten_numbers_and_the_other_none(rt: HostRuntime) -> Result<(), Fail> {
    let alloc = rt.alloc();
    let mut text = String::from_str(
        alloc,
        "rtheap 1 threads 2 blocks 64 live 20 object 2 shared 4\nthread 0\n",
    )?;
    for j in 0..10u32 {
        text.push_str(format!(in alloc; "set 1 {j}\nsay 1\n")?.as_str())?;
    }
    text.push_str("thread 1\nend\n")?;
    let mail = delivered(&rt, alloc, text.as_str(), &NoPace)?;
    let ten: &[u64] = &[0, 1, 2, 3, 4, 5, 6, 7, 8, 9];
    assert!(rt; mail.has(&[ten, &[]]));
    Ok(())
}

#[test]
fn objects_and_nil_are_not_sent(rt: HostRuntime) -> Result<(), Fail> {
    let text = "rtheap 2 threads 1 blocks 64 live 20 object 2 shared 0
thread 0
set 1 5
say 1
set 1 6
say 1
say 0
nil 1
say 1
new 1 1
say 1
set 2 7
get 1 2 0
say 2
end
";
    let mail = delivered(&rt, rt.alloc(), text, &NoPace)?;
    assert!(rt; mail.has(&[&[5, 6, 7]]));
    Ok(())
}

/// How often each of two threads says its number.
const OFTEN: u32 = 3000;

/// The text in which each of two threads says its number often.
fn often_said(alloc: Global) -> Result<String, AllocError> {
    let mut text = String::from_str(
        alloc,
        "rtheap 1 threads 2 blocks 64 live 20 object 2 shared 4\n",
    )?;
    for t in 0..2u32 {
        text.push_str(format!(in alloc; "thread {t}\nset 1 {t}\n")?.as_str())?;
        for _ in 0..OFTEN {
            text.push_str("say 1\n")?;
        }
    }
    text.push_str("end\n")?;
    Ok(text)
}

/// So many times this number.
fn times(alloc: Global, number: u64, count: u32) -> Result<Vec<u64>, AllocError> {
    let mut numbers = Vec::new(alloc);
    for _ in 0..count {
        numbers.push(number)?;
    }
    Ok(numbers)
}

#[test]
fn threads_that_say_thousands_of_numbers_end(rt: HostRuntime) -> Result<(), Fail> {
    let alloc = rt.alloc();
    let text = often_said(alloc)?;
    let mail = delivered(&rt, alloc, text.as_str(), &NoPace)?;
    let zeros = times(alloc, 0, OFTEN)?;
    let ones = times(alloc, 1, OFTEN)?;
    assert!(rt; mail.has(&[zeros.as_slice(), ones.as_slice()]));
    Ok(())
}

/// Each of two threads says twice.
const FOUR_SAYS: &str = "rtheap 1 threads 2 blocks 64 live 20 object 2 shared 4
thread 0
say 0
say 0
thread 1
say 0
say 0
end
";

#[test]
fn threads_speak_beside_each_other(rt: HostRuntime) -> Result<(), Fail> {
    let pace = Meeting::new();
    let mail = delivered(&rt, rt.alloc(), FOUR_SAYS, &pace)?;
    assert!(rt; mail.has(&[&[], &[]]));
    assert!(rt; pace.took_place());
    Ok(())
}

#[test]
fn so_do_those_of_a_whole_call(rt: HostRuntime) -> Result<(), Fail> {
    let pace = Meeting::new();
    let (statuses, sink) = called(&rt, rt.alloc(), FOUR_SAYS, &pace)?;
    assert_eq!(rt; statuses, (0, 0));
    assert_eq!(rt; sink.bytes(), b"0 got 0\n1 got 0\n".as_slice());
    assert!(rt; pace.took_place());
    Ok(())
}

/// Stops the process unless a run ends within half a minute.
fn watch<R: Clock + Abort>(rt: &R, ended: &AtomicU64) {
    for _ in 0..3000 {
        if ended.load(Ordering::SeqCst) == 1 {
            return;
        }
        thread::sleep(rt, Duration::from_millis(10));
    }
    panic!(rt; "the caller takes no letter while the threads run");
}

// A thread sends its second letter once the caller has taken the first, so a caller that joins the
// threads before it takes waits for ever.
#[test]
fn letters_are_taken_while_threads_run(rt: HostRuntime) -> Result<(), Fail> {
    let text = "rtheap 2 threads 2 blocks 64 live 20 object 2 shared 4
thread 0
set 1 5
say 1
set 1 6
say 1
set 1 7
say 1
thread 1
set 1 8
say 1
set 1 9
say 1
end
";
    let ended = AtomicU64::new(0);
    let (_, came) = thread::join(
        &rt,
        || watch(&rt, &ended),
        || -> Result<Mail, Fail> {
            let came = delivered_through_one(&rt, rt.alloc(), text, &NoPace);
            ended.store(1, Ordering::SeqCst);
            came
        },
    );
    assert!(rt; came?.has(&[&[5, 6, 7], &[8, 9]]));
    Ok(())
}
