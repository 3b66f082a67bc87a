// The answers of the figure functions.

// What a number field holds: a number, only slashes ("Missing is slashes, as many as letters"), a mixture of slashes and figures, or something
// else: another byte, a width that is not 1 to 5, or bytes that are not there.
#[derive(Clone, Copy)]
pub enum Field {
    Number(u32),
    Missing,
    Mixed,
    Other,
}
