use sheets::read_assignment;

#[test]
fn lines(rt: HostRuntime) {
    assert_eq!(rt; read_assignment(b"", 0), Some(0), "no facts");
    assert_eq!(rt;
        read_assignment(b"\n", 0),
        Some(0),
        "no facts and a newline"
    );
    assert_eq!(rt; read_assignment(b"\n\n", 0), None, "two newlines");
    assert_eq!(rt; read_assignment(b"110", 3), Some(3), "top first");
    assert_eq!(rt; read_assignment(b"001\n", 3), Some(4), "a newline");
    assert_eq!(rt; read_assignment(b"11", 3), None, "too short");
    assert_eq!(rt; read_assignment(b"11\n", 3), None, "a newline is no digit");
    assert_eq!(rt; read_assignment(b"1100", 3), None, "too long");
    assert_eq!(rt; read_assignment(b"110 ", 3), None, "a space after");
    assert_eq!(rt; read_assignment(b"1 0", 3), None, "a space between");
    assert_eq!(rt; read_assignment(b"012", 3), None, "no digit 0 or 1");
    assert_eq!(rt; read_assignment(b"01/", 3), None, "the byte before 0");
}

#[test]
fn lengths(rt: HostRuntime) {
    let mut line = [b'1'; 65];
    assert_eq!(rt;
        read_assignment(&line[0..40], 40),
        Some(0xff_ffff_ffff),
        "40 facts"
    );
    assert_eq!(rt;
        read_assignment(&line[0..64], 64),
        Some(u64::MAX),
        "64 facts"
    );
    assert_eq!(rt; read_assignment(&line, 65), None, "a 65th bit");
    line[64] = b'0';
    assert_eq!(rt;
        read_assignment(&line, 65),
        Some(u64::MAX),
        "a 65th fact that fails"
    );
}
