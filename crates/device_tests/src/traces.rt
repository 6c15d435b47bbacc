//! What a reader sees: the text of an image, and the lines of a trace.

use mote_devices::{Given, Shown};
use mote_text::{End, Event, print_end, print_event, print_image};
use msp_isa::Image;
use nm_base::MemSink;
use std::test::Fail;

// Two full lines and a half.
const CODE: [u16; 20] = [
    0x4031, 0x3900, 0xD232, 0x40B2, 0x0005, 0x0120, 0xABCD, 0xFFFF, 0x0000, 0x0001, 0x0002, 0x0003,
    0x0004, 0x0005, 0x0006, 0x0007, 0x8000, 0x00FF, 0xFF00, 0x4130,
];

const IMAGE_TEXT: &str = "@4000
31 40 00 39 32 D2 B2 40 05 00 20 01 CD AB FF FF
00 00 01 00 02 00 03 00 04 00 05 00 06 00 07 00
00 80 FF 00 00 FF 30 41
@FFE0
26 40 26 40 26 40 26 40 26 40 26 40 26 40 26 40
26 40 26 40 26 40 26 40 26 40 26 40 26 40 00 40
q
";

const TRACE_TEXT: &str = "0 arrive 3 65535
7 unplug 3
40 in 015e 1023
41 out 0120 0
999 enter 12
4294967295 fault 2
end slots 10000 ran 812 sp 38fa off 1";

#[test]
fn prints_an_image(rt: HostRuntime) -> Result<(), Fail> {
    let mut vectors = [0x4026; 16];
    vectors[15] = 0x4000;
    let image = Image {
        code: CODE.to_vec(rt.alloc())?,
        vectors,
        ram: 0,
        stack: 4,
    };
    let mut sink = MemSink::new(rt.alloc(), 4096, Vec::new(rt.alloc()))?;
    assert!(rt; print_image(&image, &mut sink).is_ok());
    assert_eq!(rt; sink.bytes(), IMAGE_TEXT.as_bytes());
    Ok(())
}

#[test]
fn prints_a_trace(rt: HostRuntime) -> Result<(), Fail> {
    let events = [
        (0, Shown::Given(Given::Arrive(3, 0xFFFF))),
        (7, Shown::Given(Given::Unplug(3))),
        (40, Shown::In(0x015E, 1023)),
        (41, Shown::Out(0x0120, 0)),
        (999, Shown::Enter(12)),
        (u32::MAX, Shown::Fault(2)),
    ];
    let mut text = Vec::new(rt.alloc());
    let mut line = [0; 64];
    for (slot, shown) in events {
        let length = print_event(&Event { slot, shown }, &mut line);
        text.extend_from_slice(&line[..length])?;
        text.push(b'\n')?;
    }
    let end = End {
        slots: 10000,
        ran: 812,
        least: 0x38FA,
        off: true,
    };
    let length = print_end(&end, &mut line);
    text.extend_from_slice(&line[..length])?;
    assert_eq!(rt; text.as_slice(), TRACE_TEXT.as_bytes());
    Ok(())
}
