// What is wanted of the store that the steps give: its table, or that of its `sfConfig`.
#[derive(Clone, Copy)]
pub(crate) enum Wanted {
    Whole,
    Main,
}
