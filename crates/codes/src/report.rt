// What a run hands back beside its two buffers: document 01's code, how many bytes of text and words of error records there are, and how many
// records.
#[derive(Clone, Copy, PartialEq, Eq, Debug)]
pub struct Reported {
    pub code: u32,
    pub bytes: u32,
    pub words: u32,
    pub records: u32,
}
