//! Words and places of worked examples.

use block_store::*;

#[test]
fn words_of_examples(rt: HostRuntime) {
    assert_eq!(rt; colour_word(Colour::Grey(5)), 43);
    assert_eq!(rt; colour_word(Colour::Free(8)), 64);
    assert_eq!(rt; payload_word(Payload::Block(7)), 14);
    assert_eq!(rt; payload_word(Payload::Int(5)), 11);
    assert_eq!(rt; shape_word(Shape::Tree(16)), 33);
    let closed = PhaseWord {
        inside: 0,
        sweep: true,
        closed: true,
        cycle: 3,
    };
    assert_eq!(rt; phase_word(closed), 3840);
    let first = Owner {
        thread: 0,
        serial: 1,
        ordinal: 0,
    };
    assert_eq!(rt; owner_word(first), 65_536);
    let registers = Owner {
        thread: 1,
        serial: 0,
        ordinal: 0,
    };
    assert_eq!(rt; owner_word(registers), 1_099_511_627_776);
    let small = WideOwner {
        thread: 1,
        serial: 1,
        ordinal: 2,
    };
    assert_eq!(rt; wide_word(small), 1_099_511_693_314);
    let large = WideOwner {
        serial: (1 << 43) - 1,
        ..small
    };
    assert_eq!(rt; wide_word(large), 18_446_711_088_360_652_802);
}

#[test]
fn readings_of_examples(rt: HostRuntime) {
    assert_eq!(rt; read_colour(4), None);
    assert_eq!(rt; read_colour(9), None);
    assert_eq!(rt; read_colour(43), Some(Colour::Grey(5)));
    assert_eq!(rt; read_payload(14), Some(Payload::Block(7)));
    assert_eq!(rt; read_shape(33), Some(Shape::Tree(16)));
    assert_eq!(rt;
        read_owner(65_536),
        Some(Owner {
            thread: 0,
            serial: 1,
            ordinal: 0
        })
    );
    assert_eq!(rt; read_owner(18_446_711_088_360_652_802), None);
    assert_eq!(rt;
        read_wide(18_446_711_088_360_652_802),
        Some(WideOwner {
            thread: 1,
            serial: (1 << 43) - 1,
            ordinal: 2
        })
    );
    assert_eq!(rt;
        read_phase(1024),
        PhaseWord {
            inside: 0,
            sweep: false,
            closed: false,
            cycle: 1
        }
    );
    assert_eq!(rt; white(1), Colour::Even);
    assert_eq!(rt; black(1), Colour::Odd);
}

#[test]
fn places_of_an_example(rt: HostRuntime) {
    let config = Config {
        width: Width::Four,
        threads: 1,
        blocks: 64,
        live: 20,
        object: 2,
        shared: 0,
    };
    let places = Places::new(&config);
    assert_eq!(rt; places.words(), 453);
    assert_eq!(rt;
        [places.phase(), places.cursor(), places.free_count()],
        [0, 1, 2]
    );
    assert_eq!(rt; [places.grey_list(0), places.free_list(0)], [3, 4]);
    assert_eq!(rt;
        [
            places.colour(1),
            places.owner(1),
            places.shape(1),
            places.payload(1, 0)
        ],
        [5, 6, 7, 8]
    );
    assert_eq!(rt; places.payload(64, 3), 452);
}

#[test]
fn places_of_wide_blocks(rt: HostRuntime) {
    let config = Config {
        width: Width::Eight,
        threads: 2,
        blocks: 64,
        live: 20,
        object: 2,
        shared: 0,
    };
    let places = Places::new(&config);
    assert_eq!(rt; places.width(), Width::Eight);
    assert_eq!(rt; places.words(), 711);
    assert_eq!(rt; places.colour(2), 18);
    assert_eq!(rt; places.payload(2, 7), 28);
    assert_eq!(rt; places.payload(64, 7), 710);
}

#[test]
fn two_widths(rt: HostRuntime) {
    for (width, payloads, blocks) in [(Width::Four, 4, 5), (Width::Eight, 8, 3)] {
        assert_eq!(rt; width.payloads(), payloads);
        assert_eq!(rt; width.registers(), blocks);
    }
}
