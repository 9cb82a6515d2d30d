//! Tests of `plantrun_core`: what no clause says of its parts, and a whole plant.

use plantrun_core::{Loop, Move, Plan, Reading, limits_of, move_of, plant, reading_of};
use std::test::Fail;
use std::time::Clock;
use trace_text::MemSource;

#[test]
fn lines_are_read(rt: HostRuntime) {
    let reading = Reading {
        tick: 12,
        tag: 0,
        value: 512,
        good: true,
    };
    assert_eq!(rt; reading_of(b"12 0 512 1"), Some(reading));
    for line in [
        b"12 9 512 1".as_slice(),
        b"12 0 512",
        b"",
        b"12 0 4294967296 1",
        b"1 0 1 2",
    ] {
        assert_eq!(rt; reading_of(line), None);
    }
}

#[test]
fn the_output_is_clamped_and_does_not_wind_up(rt: HostRuntime) {
    let mut state = Loop {
        integral: 0,
        output: 0,
    };
    for output in [488, 549, 610, 671] {
        state = state.after(Some(0), Some(1_000_000));
        assert_eq!(rt; state.output, output);
    }
    for _tick in 0..100 {
        state = state.after(Some(0), Some(1_000_000));
    }
    assert_eq!(rt; state.output, 1_000);
    let wound = state.integral;
    assert_eq!(rt; state.after(Some(0), Some(1_000_000)).integral, wound);
    assert_eq!(rt; state.after(None, Some(5)), state);
    state = state.after(Some(1_000_000), Some(0));
    assert!(rt; state.output < 1_000);
}

#[test]
fn an_alarm_goes_its_way(rt: HostRuntime) {
    let limits = &limits_of(0);
    let high = Some((950_000, 3));
    let low = Some((500_000, 5));
    assert_eq!(rt; move_of(limits, None, low, None), Move::Stay);
    assert_eq!(rt; move_of(limits, None, high, None), Move::Raise);
    assert_eq!(rt; move_of(limits, None, Some((950_000, 2)), None), Move::Stay);
    assert_eq!(rt; move_of(limits, Some((1, 0)), low, None), Move::Stay);
    assert_eq!(rt;
        move_of(limits, Some((1, 0)), low, Some((1, 7))),
        Move::Acknowledge
    );
    assert_eq!(rt;
        move_of(limits, Some((1, 7)), low, Some((1, 7))),
        Move::Stay
    );
    assert_eq!(rt;
        move_of(limits, Some((2, 7)), high, Some((1, 7))),
        Move::Stay
    );
    assert_eq!(rt;
        move_of(limits, Some((2, 7)), low, Some((1, 7))),
        Move::Clear
    );
}

// A plant of 40 ticks ends, and its controller acts on the last readings.
#[test]
fn a_plant_runs(rt: HostRuntime) -> Result<(), Fail> {
    let text = b"0 0 400000 1\n0 4 500000 1\n3 0 950000 1\n9 1 100000 0\n20 5 1 1\n30 0 450000 1\n";
    let bytes = Vec::from_slice(rt.alloc(), text)?;
    let mut source = MemSource::new(bytes, 7, Vec::new(rt.alloc()));
    let began = rt.monotonic().ok();
    let plan = Plan {
        ticks: 40,
        period: 500,
    };
    match plant(&rt, rt.alloc(), plan, &mut source) {
        Ok(ended) => {
            assert_eq!(rt; ended.logs.input.len(), 6);
            assert_eq!(rt; ended.logs.control.len(), 123);
            assert!(rt; ended.order.len() > 129 + 8 * 12);
            let measured = ended.logs.control.get(120).map(|done| done.answer);
            assert_eq!(rt; measured, Some(Some((450_000, 13))));
            let mut last = 0;
            for step in ended.order.as_slice() {
                assert!(rt; last <= step.done.stamp);
                last = step.done.stamp;
            }
            if let (Some(began), Ok(now)) = (began, rt.monotonic()) {
                assert!(rt; now.saturating_sub(began).as_micros() > 19_000);
            }
        }
        Err(stop) => assert!(rt; false, "{stop:?}"),
    }
    Ok(())
}
