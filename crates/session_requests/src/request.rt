//! What a session is asked for.

/// What the line of a request says. A length is the number of bytes after the line, below 10^10.
#[derive(Clone, Copy, Debug, PartialEq, Eq)]
pub enum RequestLine {
    /// To load a program: the length of its file.
    Program(u64),
    /// To free the program of this digest.
    Forget([u8; 32]),
    /// To name the programs.
    Programs,
    /// To run a frame and keep what it writes: the length of its body.
    Frame(u64),
    /// To run a frame and keep nothing of it: the length of its body.
    Try(u64),
    /// To give the last answer again.
    Last,
    /// To give what the storage has at a key.
    Get([u8; 32]),
    /// To give the entries from a key on, and how many at most, 1 to 1,024.
    List([u8; 32], u64),
    /// To give the whole storage.
    Dump,
    /// To begin again: the height, below 10^10, the digest if there is one, and the length of the storage's text.
    Begin(u64, Option<[u8; 32]>, u64),
    /// To give the settings and counts.
    State,
    /// To end the session.
    Quit,
}

/// A request: what its line says, with the bytes after it in place of their length.
#[derive(Debug, Drop)]
pub enum Request {
    /// To load a program: the bytes of its file.
    Program(Vec<u8>),
    /// To free the program of this digest.
    Forget([u8; 32]),
    /// To name the programs.
    Programs,
    /// To run a frame and keep what it writes: its body.
    Frame(Vec<u8>),
    /// To run a frame and keep nothing of it: its body.
    Try(Vec<u8>),
    /// To give the last answer again.
    Last,
    /// To give what the storage has at a key.
    Get([u8; 32]),
    /// To give the entries from a key on, and how many at most, 1 to 1,024.
    List([u8; 32], u64),
    /// To give the whole storage.
    Dump,
    /// To begin again: the height, below 10^10, the digest if there is one, and the storage's text.
    Begin(u64, Option<[u8; 32]>, Vec<u8>),
    /// To give the settings and counts.
    State,
    /// To end the session.
    Quit,
}

/// Why the next bytes of an input are no request.
#[derive(Clone, Copy, Debug, PartialEq, Eq)]
pub enum RequestFault {
    /// The next line has none of the forms of a request, has no LF, or has none among its first 128 bytes.
    BadLine = 1,
    /// The input ends before the last byte of a request's body.
    Cut = 2,
}

/// What comes next in an input.
#[derive(Debug, Drop)]
pub enum Asked {
    /// A request.
    Whole(Request),
    /// The line of a request with more bytes after it than are allowed. They were passed over.
    TooLong(RequestLine),
    /// The line of a request for whose bytes memory ran out. They were passed over.
    Unkept(RequestLine),
    /// No request: the input's requests end here.
    Broken(RequestFault),
    /// The input's end.
    End,
}
