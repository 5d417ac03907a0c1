// What a run writes.

/// The text that a run writes, and whether it is good: no reply is a refusal, or the verdict is `yes`.
#[derive(Drop)]
pub struct Output {
    pub text: Vec<u8>,
    pub is_good: bool,
}
