use oi_base::{Blob, NoMemory, Serial, Tag};
use oi_pdu::ScsiCommand;
use oi_target_tasks::{Task, Tasks};
use std::alloc::Global;
use std::process::Abort;
use std::test::Fail;

// A command with this tag for this unit; with a length it writes so many bytes.
fn command(tag: u32, unit: u8, length: u32) -> ScsiCommand {
    ScsiCommand {
        immediate: false,
        last: true,
        reads: false,
        writes: 0 < length,
        attr: 1,
        lun: [0, unit, 0, 0, 0, 0, 0, 0],
        tag: Tag(tag),
        length,
        cmdsn: Serial(1),
        exp_stat: Serial(1),
        cdb: [0; 16],
    }
}

// Whether the tag was free; a write asks for its first 4 bytes.
fn push(alloc: Global, tasks: &mut Tasks, head: ScsiCommand) -> Result<bool, NoMemory> {
    let mut task = Task::new(head, Blob::new(alloc));
    if tasks.is_busy(task.tag.0) {
        return Ok(false);
    }
    if task.is_waiting() {
        task.ask(7, 4);
    }
    tasks.push(task)?;
    Ok(true)
}

// The next command has this tag, or none is to be executed.
fn pops(rt: &impl Abort, tasks: &mut Tasks, tag: Option<u32>) {
    let next = tasks.next_ready().map(|task| task.tag.0);
    assert_eq!(rt; next, tag);
}

// Commands one after another, and whether their tags were free.
static COMMANDS: [(u32, u8, u32, bool); 7] = [
    (9, 0, 0, true),
    (2, 0, 8, true),
    (3, 1, 4, true),
    (4, 1, 0, true),
    (2, 1, 0, false),
    (1, 0, 0, true),
    (5, 0, 4, true),
];

// Data for a tag, and whether more are asked for behind them.
static PAYLOADS: [(u32, &[u8], bool); 6] = [
    (2, &[1, 2], false),
    (2, &[3, 4], true),
    (2, &[5, 6, 7, 8], false),
    (2, &[9], false),
    (4, &[1], false),
    (6, &[1], false),
];

#[test]
fn commands_come_fill_and_go(rt: HostRuntime) -> Result<(), Fail> {
    let alloc = rt.alloc();
    let mut tasks = Tasks::new(alloc);
    for (tag, unit, length, free) in &COMMANDS {
        let head = command(*tag, *unit, *length);
        assert_eq!(rt; push(alloc, &mut tasks, head)?, *free);
    }
    pops(&rt, &mut tasks, Some(9));
    pops(&rt, &mut tasks, None);
    assert!(rt; tasks.is_busy(2));
    assert!(rt; !tasks.is_busy(9));
    for (tag, payload, asks) in &PAYLOADS {
        assert_eq!(rt; tasks.fill(alloc, *tag, *payload, 8, 4)?, *asks);
    }
    assert!(rt; tasks.waiting(2).is_none());
    for (tag, waited) in [(3, true), (3, false), (4, false), (6, false)] {
        assert_eq!(rt; tasks.drop_waiting(tag), waited);
    }
    assert!(rt; push(alloc, &mut tasks, command(3, 0, 0))?);
    tasks.drop_of_unit([0, 1, 0, 0, 0, 0, 0, 0]);
    assert!(rt; !tasks.is_busy(4));
    pops(&rt, &mut tasks, Some(2));
    pops(&rt, &mut tasks, Some(1));
    pops(&rt, &mut tasks, None);
    assert!(rt; tasks.drop_waiting(5));
    pops(&rt, &mut tasks, Some(3));
    assert!(rt; push(alloc, &mut tasks, command(3, 0, 0))?);
    tasks.clear();
    assert!(rt; !tasks.is_busy(3));
    pops(&rt, &mut tasks, None);
    Ok(())
}
