// What reading a whole description leaves: how many steps there are, and how many bytes of text they will take.
#[derive(Clone, Copy)]
pub struct Drafts {
    pub steps: usize,
    pub text: usize,
}
