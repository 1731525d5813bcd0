//! A list of records.

use bundle_meaning::Full;
use endpoint::Listed;

/// A list of records.
pub type Fulls = Listed<Full>;
