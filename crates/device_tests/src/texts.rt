//! Tables of texts: images and schedules, whole and damaged, and the lines of events.

use mote_devices::{Due, Given, Shown};
use mote_text::{
    Event, TextFault, load_image, print_event, print_image, print_schedule, read_event, read_image,
    read_schedule,
};
use msp_isa::Image;
use nm_base::MemSink;
use std::test::Fail;

const WHOLE: &[u8] = b"@4000\n31 40\n\n@FFFE\n00 40\nq\n";

// Whether the text names 31 40 at 0x4000 and 00 40 at 0xFFFE, and nothing else.
fn is_whole(bytes: &[u8]) -> bool {
    let count = bytes.iter().filter(|byte| **byte != 0).count();
    bytes.len() == 49152
        && bytes[0] == 0x31
        && bytes[1] == 0x40
        && bytes[49151] == 0x40
        && count == 3
}

#[test]
fn reads_images(rt: HostRuntime) -> Result<(), Fail> {
    let texts: [&[u8]; 5] = [
        WHOLE,
        b"@4000\r\n31 40 \r\n\r\n@FFFE\r\n00 40\r\nq\r\n\r\n",
        b"@00004001\n40\n@4000\n31\n@fffe\n00 40\nq",
        b"\n\n@4000\n31\n40\n@FFFF\n40\n@FFFE\n00\nq\n\n\n",
        b"@5000\n@4000\n31 40\n@FFFE\n00 40\nq\n",
    ];
    for text in texts {
        match read_image(rt.alloc(), text) {
            Ok(loaded) => assert!(rt; is_whole(loaded.bytes())),
            Err(fault) => assert!(rt; false, "{fault:?}"),
        }
    }
    Ok(())
}

#[test]
fn refuses_images(rt: HostRuntime) -> Result<(), Fail> {
    let texts: [(&[u8], u32); 20] = [
        (b"", 1),
        (b"\n", 2),
        (b"@4000\n31 4\n", 2),
        (b"@4000\n31 40\n@4001\n00\nq\n", 4),
        (b"@4000\n31 40\n", 3),
        (b"@4000\n31 40", 3),
        (b"@1100\n00\nq\n", 1),
        (b"@3FFF\nq\n", 1),
        (b"@10000\nq\n", 1),
        (b"@000004000\nq\n", 1),
        (b"@\nq\n", 1),
        (b"@ 4000\nq\n", 1),
        (b"@4000 \nq\n", 1),
        (b"00\nq\n", 1),
        (b"@FFFF\n00 01\nq\n", 2),
        (b"@4000\n00  01\nq\n", 2),
        (b"@4000\n0G\nq\n", 2),
        (b"@4000\n00\nq \n", 3),
        (b"@4000\n00\nq\nq\n", 4),
        (b"@4000\r00\nq\n", 1),
    ];
    for (text, line) in texts {
        assert_eq!(rt;
            read_image(rt.alloc(), text).err(),
            Some(TextFault::BadImage(line))
        );
    }
    Ok(())
}

// The end of the text is at `q`: each cut before it is refused, at a line of the cut text or behind it.
#[test]
fn refuses_every_cut(rt: HostRuntime) -> Result<(), Fail> {
    let end = WHOLE.len() - 1;
    for len in 0..end {
        let line = match read_image(rt.alloc(), &WHOLE[..len]) {
            Err(TextFault::BadImage(line)) => line,
            _ => 0,
        };
        assert!(rt; line > 0 && line < 8, "{len}");
    }
    assert!(rt; read_image(rt.alloc(), &WHOLE[..end]).is_ok());
    Ok(())
}

#[test]
fn prints_an_image_that_reads_back(rt: HostRuntime) -> Result<(), Fail> {
    let alloc = rt.alloc();
    let image = Image {
        code: vec![in alloc; 0x4031, 0x3900, 0xD232]?,
        vectors: [0x4000; 16],
        ram: 0,
        stack: 4,
    };
    let mut sink = MemSink::new(alloc, 4096, vec![in alloc]?)?;
    assert!(rt; print_image(&image, &mut sink).is_ok());
    let loaded = load_image(alloc, &image)?;
    match read_image(alloc, sink.bytes()) {
        Ok(read) => assert_eq!(rt; read.bytes(), loaded.bytes()),
        Err(fault) => assert!(rt; false, "{fault:?}"),
    }
    let mut small = MemSink::new(alloc, 11, vec![in alloc]?)?;
    assert!(rt; print_image(&image, &mut small).is_err());
    assert_eq!(rt; small.bytes(), b"@4000\n31 40".as_slice());
    Ok(())
}

#[test]
fn reads_schedules(rt: HostRuntime) -> Result<(), Fail> {
    let alloc = rt.alloc();
    let text = b"# rows\r\n\n0000000005 arrive 07 065535\n5 arrive 0 0\r\n4294967295 arrive 1 2";
    let rows = [
        Due {
            slot: 5,
            given: Given::Arrive(7, 65535),
        },
        Due {
            slot: 5,
            given: Given::Arrive(0, 0),
        },
        Due {
            slot: u32::MAX,
            given: Given::Arrive(1, 2),
        },
    ];
    match read_schedule(alloc, text) {
        Ok(read) => assert_eq!(rt; read.as_slice(), rows.as_slice()),
        Err(fault) => assert!(rt; false, "{fault:?}"),
    }
    let printed = print_schedule(alloc, &rows)?;
    assert_eq!(rt;
        printed.as_slice(),
        b"5 arrive 7 65535\n5 arrive 0 0\n4294967295 arrive 1 2\n".as_slice()
    );
    Ok(())
}

#[test]
fn refuses_schedules(rt: HostRuntime) -> Result<(), Fail> {
    let texts: [(&[u8], u32); 16] = [
        (b"5 arrive 2 1\n4 arrive 2 1\n", 2),
        (b"5 arrive 8 1\n", 1),
        (b"\n#\n5 arrive 7 65536\n", 3),
        (b"4294967296 arrive 7 1\n", 1),
        (b"00000000005 arrive 7 1\n", 1),
        (b"5 unplug 2\n", 1),
        (b"5  arrive 2 1\n", 1),
        (b" 5 arrive 2 1\n", 1),
        (b"5 arrive 2 1 \n", 1),
        (b"5 arrive 2\n", 1),
        (b"5 arrives 2 1\n", 1),
        (b"+5 arrive 2 1\n", 1),
        (b"5 arrive 2 0x1\n", 1),
        (b"5 arrive 2 1\r", 1),
        (b" # a\n", 1),
        (b"5\n", 1),
    ];
    for (text, line) in texts {
        assert_eq!(rt;
            read_schedule(rt.alloc(), text).err(),
            Some(TextFault::BadSchedule(line))
        );
    }
    Ok(())
}

#[test]
fn reads_events(rt: HostRuntime) -> Result<(), Fail> {
    let events = [
        Shown::Given(Given::Arrive(255, 65535)),
        Shown::Given(Given::Unplug(3)),
        Shown::In(0x015E, 1023),
        Shown::Out(0xABCD, 0),
        Shown::Enter(12),
        Shown::Fault(256),
    ];
    for shown in events {
        let event = Event {
            slot: u32::MAX,
            shown,
        };
        let mut buffer = [0; 64];
        let len = print_event(&event, &mut buffer);
        assert_eq!(rt; read_event(&buffer[..len]), Some(event));
    }
    Ok(())
}

#[test]
fn refuses_lines_of_no_event(rt: HostRuntime) -> Result<(), Fail> {
    let lines: [&[u8]; 16] = [
        b"",
        b"1",
        b"1 enter",
        b"1 enter 256",
        b"1 enter 07",
        b"01 enter 7",
        b"4294967296 enter 7",
        b"1 enter 7 ",
        b"1 enter 7\n",
        b"1 in 15e 1",
        b"1 in 015E 1",
        b"1 out 0120 65536",
        b"1 out 0120 1 2",
        b"1 arrive 2",
        b"1 Enter 7",
        b"end slots 1 ran 1 sp 38fa off 1",
    ];
    for line in lines {
        assert_eq!(rt; read_event(line), None);
    }
    Ok(())
}
