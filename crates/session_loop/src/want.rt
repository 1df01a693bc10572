/// How a session ends.
#[derive(Clone, Copy, Debug, PartialEq, Eq)]
pub enum SessionEnd {
    /// The source ended between two requests, or the last answer closed the connection and was no refusal.
    Ended,
    /// The source ended inside a request.
    CutOff,
    /// A request was refused with this HTTP status, and the refusal was written.
    Refused { status: u16 },
    /// The source failed.
    ReadFault,
    /// The sink failed.
    WriteFault,
    NoMemory,
}

/// What a session wants next.
#[derive(Clone, Copy, Debug, PartialEq, Eq)]
pub enum Want {
    /// The next bytes of the source, or its end.
    Bytes,
    /// The moment, once for each request that is whole.
    Moment,
    /// What becomes of its call, on this document.
    Submit { doc: usize },
    /// How many changes this document has seen.
    Front { doc: usize },
    /// That its output is written.
    Write,
    /// Nothing: it has ended.
    End { end: SessionEnd },
}
