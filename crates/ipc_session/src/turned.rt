use crate::ending::Ending;
use ipc_connection::Stage;

/// What comes after something that was heard.
#[derive(Clone, Copy)]
pub enum Turned {
    /// The connection goes on at a stage.
    On(Stage),
    /// It ends.
    Over(Ending),
}
