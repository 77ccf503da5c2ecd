// The ID of a frame.
ghost use Rattle.base.specs.inner.Answers.{Answers};
ghost use Rattle.row.specs.inner.Ids.{FormOf};

// Whether the ID of a frame is extended, by its digits: 0 or 1; none if no ID has so many digits and this value.
pub fn form(width: usize, id: u64) -> Option<u64>
    ensures { Answers (FormOf id width) result }
{
    match width {
        4 if id <= 0x7FF => Some(0),
        8 if id <= 0x1FFFFFFF => Some(1),
        _ => None,
    }
}
