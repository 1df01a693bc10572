//! What holds of files that objects stand for, and of a file that is cut. Each is the contract of a function that does
//! nothing.

ghost use Rattle.std.specs.Prelude.{◌≡◌, ◌≤◌, ℕ, List, length, Some};
ghost use Rattle.std.specs.List.{AllByRecursion};
ghost use Rattle.compact_values.specs.declared.guid.Guid.{Guid};
ghost use Rattle.compact_values.specs.declared.ids.ExGuid.{ExGuid};
ghost use Rattle.doc_model.specs.rules.FileObjects.{root_file};
ghost use Rattle.doc_model.specs.rules.Files.{file};
ghost use Rattle.file_nodes.specs.ChunkLaws.{CutFileIsStored, CutFileMayBePut};
ghost use Rattle.file_nodes.specs.Chunking.{file_objects};
ghost use Rattle.file_nodes.specs.Chunks.{chunked};
ghost use Rattle.file_nodes.specs.FileAnswers.{Agrees, LengthOfTheFile};
ghost use Rattle.file_nodes.specs.FileWalks.{stored_objects, walk_root};
ghost use Rattle.file_nodes.specs.StoredObjects.{StoredObject};

/// The walk from a root has no fault exactly where the file of the root is defined, and then it gives the file's length.
pub fn no_fault_where_defined()
    ensures { (objects : List StoredObject) (root : ExGuid) → Agrees (root_file (stored_objects objects) root) (walk_root objects root) }
{}

/// The file at the index of a file that is cut is that file.
pub fn file_of_a_cut_file()
    ensures { (bytes : List ℕ) (guid : Guid) (first : ℕ) → length bytes ≤ 16777216 → file (chunked bytes guid first).elements (chunked bytes guid first).index ≡ Some bytes }
{}

/// No object of a file that is cut has more than 64 references, however long the file is.
pub fn at_most_64_references()
    ensures { (bytes : List ℕ) (guid : Guid) (value : ℕ) → AllByRecursion (λ o. length o.references ≤ 64) (file_objects bytes guid value) }
{}

/// A file of at most 16 MiB that is cut is accepted as the first put of a document, whose file it then is.
pub fn a_cut_file_is_accepted()
    ensures { CutFileIsStored }
{}

/// The put of a file of at most 16 MiB that is cut may be made, and takes at most 267 ids.
pub fn a_cut_file_may_be_put()
    ensures { CutFileMayBePut }
{}

/// `file_length` answers the length of what `file_of` answers.
pub fn the_length_is_that_of_the_file()
    ensures { LengthOfTheFile }
{}
