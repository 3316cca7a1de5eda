use eris_event::Event;

/// What a line behind a script's header says.
#[derive(Debug, Drop)]
pub enum Line {
    /// Nothing: it is empty or a comment.
    Skip,
    /// One event.
    One(Event),
    /// So many events [`Event::Flow`].
    Flow(u32),
    /// So many events [`Event::Lose`].
    Lose(u32),
}
