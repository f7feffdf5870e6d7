//! The `Answer` to a call.

/// The result of a call, apart from its texts.
#[repr(C)]
#[derive(Clone, Copy)]
pub struct Answer {
    /// The length in bytes of all the output that was made, a part of it if memory ran out. As much of it is written as
    /// there is room for.
    pub out_length: usize,
    /// The length of the whole text of standard error in bytes. As much of it is written as there is room for.
    pub errors_length: usize,
    /// For a fault of a file, the length of the file's name, which is after `gherkin_run: ` at the beginning of the
    /// errors; otherwise 0.
    pub name_length: usize,
    /// The line of such a fault, or 0 if it is on no line.
    pub line: u32,
    /// The status that the program ends with: 0 to 4.
    pub status: u8,
}
