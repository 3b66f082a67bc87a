// What the groups up to Nddff say of the groups to come.

// What iR, ix and ff say of the groups to come: a 6 group, a 7 group and 00fff are required. A 6 or 7 group that is not required is forbidden.
#[derive(Clone, Copy)]
pub struct Needs {
    pub rain: bool,
    pub weather: bool,
    pub speed: bool,
}
