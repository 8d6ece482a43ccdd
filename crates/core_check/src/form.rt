// The two forms of a certificate that the check accepts.
use crate::accepted_calendar::AcceptedCalendar;
use crate::accepted_weights::AcceptedWeights;

/// An accepted certificate by its form.
#[derive(Drop)]
pub enum Form<'a> {
    /// A calendar, with its worst loss and the weights that bound every loss.
    Closes(AcceptedCalendar<'a>),
    /// Weights that refuse every calendar.
    Cannot(AcceptedWeights<'a>),
}
