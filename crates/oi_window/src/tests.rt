use crate::Window;
use oi_base::Serial;

fn numbers(window: &Window) -> (u32, u32, u32) {
    (window.next().0, window.expected().0, window.max().0)
}

#[test]
fn bad_max_cmdsn_is_ignored(rt: HostRuntime) {
    for (exp, max, after) in [
        (10, 8, (1, 1, 32)),
        (10, 9, (1, 10, 32)),
        (10, 40, (1, 10, 40)),
        (1, 0, (1, 1, 32)),
        (0, 33, (1, 1, 33)),
    ] {
        let mut window = Window::at(Serial(1), Serial(32));
        window.update(Serial(exp), Serial(max));
        assert_eq!(rt; numbers(&window), after, "at {exp} and {max}");
    }
}

#[test]
fn cmdsn_wraps_around(rt: HostRuntime) {
    let mut window = Window::at(Serial(0xffff_ffff), Serial(3));
    for next in [0xffff_ffff, 0, 1, 2, 3] {
        assert!(rt; window.is_open());
        assert_eq!(rt; window.next().0, next);
        window.advance();
    }
    assert!(rt; !window.is_open());
    assert_eq!(rt; numbers(&window), (4, 0xffff_ffff, 3));
}

#[test]
fn window_opens_by_nop_in(rt: HostRuntime) {
    let mut window = Window::at(Serial(1), Serial(0));
    assert!(rt; !window.is_open());
    window.update(Serial(1), Serial(2));
    assert!(rt; window.is_open());
    assert_eq!(rt; numbers(&window), (1, 1, 2));
}
