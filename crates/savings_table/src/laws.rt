//! Laws of sets of files, for callers to cite.
ghost use Rattle.savings_table.specs.Savings.{FilesGiveOneSet, FilesHaveFewBonds};

/// Laws: the issue of a file has no more bonds than the file has bytes, so that one that was read has no more than
/// `old_service` asks; and an issue and a case that were read of one set of files are of one set, as `savings_of` asks.
pub fn one_set()
    ensures bonds { FilesHaveFewBonds }
    ensures set { FilesGiveOneSet }
{}
