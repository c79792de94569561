// A question as a settings file has it; whether it can be answered is not tested here.
#[derive(Clone, Copy, PartialEq, Eq, Debug)]
pub struct Question {
    pub task: u8,
    pub jobs: u16,
    pub span: u32,
}
