/// Where the parts of a reference are in the bytes pushed: the end of the name, and begin and end of tag and digest,
/// without their marks.
#[derive(Clone, Copy, Debug, PartialEq, Eq)]
pub struct Places {
    pub name: usize,
    pub tag: Option<(usize, usize)>,
    pub digest: Option<(usize, usize)>,
}
