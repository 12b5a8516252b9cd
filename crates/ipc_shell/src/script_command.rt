use ipc_core::Command;

/// What a line of a script asks for.
#[derive(Drop)]
pub enum ScriptCommand {
    /// A command of the kernel.
    Obey(Command),
    /// To let go of all entries that nothing asks for any more, up to the mark: the line `compact`.
    Compact,
}
