//! Laws of entries: their spellings, what is read of them, and where they are split.
ghost use Rattle.std.specs.Prelude.{ℕ, Bool, List};
ghost use Rattle.prolly_entry.specs.declared.version.Version.{Version};
ghost use Rattle.prolly_entry.specs.Reference.{ReferenceTextsDiffer};
ghost use Rattle.prolly_entry.specs.Keys.{KeyOrderIsBytewise};
ghost use Rattle.prolly_entry.specs.Spelling.{PairSpellingsApart, RecordSpellingsApart};
ghost use Rattle.prolly_entry.specs.Spelling.{ChildSpellingsApart};
ghost use Rattle.prolly_entry.specs.Reading.{FirstAreGood, OneReading, SomeReading};
ghost use Rattle.prolly_tree.specs.RecordFile.{RecordFilesAreRead, RecordFilesMakeFiles};
ghost use Rattle.prolly_tree.specs.Split.{OneSplit, FewGroups, SplitStep, SplitGoesOn};

/// Keys are compared byte by byte, as the words say.
pub fn keys_are_ordered_bytewise()
    ensures { KeyOrderIsBytewise }
{}

/// No spelling is a proper prefix of another of its kind.
pub fn no_spelling_begins_another()
    ensures pairs { PairSpellingsApart }
    ensures records { RecordSpellingsApart }
    ensures children { (version : Version) → ChildSpellingsApart version }
{}

/// Two references with one text are the same.
pub fn reference_texts_differ()
    ensures { ReferenceTextsDiffer }
{}

/// Bytes have a reading, and only one.
pub fn bytes_have_one_reading()
    ensures some { SomeReading }
    ensures one { OneReading }
{}

/// Records that begin bytes are the first ones of their reading.
pub fn first_records_are_good()
    ensures { FirstAreGood }
{}

/// The record file of a map is read as the records that put its pairs. Their overlay is the map, so
/// what is read of it makes the map's file again.
pub fn record_files_are_read()
    ensures read { RecordFilesAreRead }
    ensures again { RecordFilesMakeFiles }
{}

/// A list has one split.
pub fn lists_have_one_split<A>()
    ensures { (test : A → Bool) (least : ℕ) (list : List A) → OneSplit test least list }
{}

/// Groups of two entries or more are few.
pub fn groups_are_few<A>()
    ensures { (test : A → Bool) (list : List A) → FewGroups test list }
{}

/// A split goes on entry by entry.
pub fn splits_go_on<A>()
    ensures { (test : A → Bool) (least : ℕ) (list : List A) (x : A) → SplitStep test least list x }
{}

/// Behind a list a split goes on from the list's open group.
pub fn splits_go_on_behind<A>()
    ensures { (test : A → Bool) (least : ℕ) (xs ys : List A) → SplitGoesOn test least xs ys }
{}
