//! The laws of what is told: of files that give no bytes, and of the answers whose bytes are those of
//! no other answer. Each is a function that does nothing when it runs: its contract is the law.
ghost use Rattle.teg_commands.specs.ToldAnswers.{AnswersOfCommandsAreTold};
ghost use Rattle.teg_commands.specs.UnreadFiles.{UnreadFilesAreTold};

/// The law that a due file or a timetable which is too long or cannot be read has the text of which
/// the laws `texts_of_endless_differ` and `texts_of_timetables_differ` speak. It does nothing when
/// it runs.
pub fn unread_files_are_told()
    ensures { UnreadFilesAreTold }
{}

/// The law that the answers of the commands are told, by what these say of them: of `list`, `form`,
/// `cycle` with the rounds or without, `dates`, `date`, `slack`, `transfer`, `jit`, `replay` and
/// `trial`, and the refusals of due files, logs and expressions. So the law `answers_are_read` of
/// `teg_report` holds of them: each is read back from the bytes that are written, and other answers
/// about the net have other bytes. What `size`, `forever`, `timetable` and `bound` say is told in
/// the sense of the laws `texts_of_sizings_differ`, `texts_of_endless_differ`,
/// `texts_of_timetables_differ` and `texts_of_bounds_differ`. It does nothing when it runs.
pub fn answers_of_commands_are_told()
    ensures { AnswersOfCommandsAreTold }
{}
