//! What holds of each configuration file. A law is the contract of a function that does nothing.

ghost use Rattle.config_laws.specs.Again.{ShownMeansTheSame};

/// What is shown is read again as what was shown: where octets mean a file, the text that is shown
/// of it is short enough, is UTF-8 and TOML, nothing of it is refused, and it means the same file.
/// No value differs, and a number of a first session that isn't set stays unset.
pub fn shown_means_the_same()
    ensures { ShownMeansTheSame }
{}
