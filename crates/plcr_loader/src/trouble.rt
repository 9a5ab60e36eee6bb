/// What is wrong with a list of load commands.
#[derive(Clone, Copy, Debug, PartialEq, Eq)]
pub enum Trouble {
    /// The command at this index, from 0, passes the end of the list, is shorter than a
    /// load_command or fails its test.
    Bad { index: u32 },
    /// Some byte that should stand from this place on isn't there.
    Absent { place: u64 },
}
