//! Lines and fields.
use text_lines::{fields_of, next_line};

// Texts, each with its first line and what comes after it.
const TEXTS: &[(&[u8], Option<(&[u8], &[u8])>)] = &[
    (b"", None),
    (b"a\nb", Some((b"a", b"b"))),
    (b"a\r\nb\n", Some((b"a", b"b\n"))),
    (b"a\r", Some((b"a\r", b""))),
    (b"\n", Some((b"", b""))),
    (b"\r\n", Some((b"", b""))),
    (b"a\rb\r\r\n", Some((b"a\rb\r", b""))),
];

#[test]
fn lines_of_a_text(rt: HostRuntime) {
    for (text, first) in TEXTS {
        assert!(rt; next_line(text) == *first);
    }
}

#[test]
fn fields_of_a_line(rt: HostRuntime) {
    let lines: &[(&[u8], usize)] = &[(b"1  FIRM ", 4), (b"", 1)];
    for (line, count) in lines {
        let fields = fields_of(rt.alloc(), line).expect(&rt, "memory");
        assert!(rt; fields.len() == *count);
    }
}
