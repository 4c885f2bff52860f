//! What a run over real files gives. The function does nothing: it carries a fact on which its callers may rely.

ghost use Rattle.bt_files.specs.calls.RealFiles.{real_files_get_their_report};

/// If no failed read or write and no refused growth is reported, the bytes that the output took are those of the report on what
/// the inputs handed over; whatever failed, they begin those of that report. So it is for every plan that was carried out over
/// [`crate::SystemFiles`]. That the system's reads put a file's bytes into the block, and that its writes take those that they
/// are given, is trusted.
pub fn real_files_get_their_report()
    ensures { real_files_get_their_report }
{}
