//! The laws of the procedures of hash tables. Each function does nothing; its contract is the law.

ghost use Rattle.op_hash.specs.Laws.{CopyLaw, EachLaw, ElemsLaw, EmptyLaw, FindLaw, HasLaw, InsertLaw, KeyWordsLaw, KeysLaw, LookupLaw, MapKeysLaw, MapsAsTests, MoveLaw, PickLaw, PutLaw, RemoveLaw, SetKeysLaw, SetsAsTests};
ghost use Rattle.op_hash.specs.Rules.{AllHmapRows, AllHsetRows};
ghost use Rattle.op_hash.specs.Texts.{hmap_copy, hmap_del, hmap_empty, hmap_has, hmap_keys, hmap_lookup, hset_copy, hset_elems, hset_empty, hset_has, hset_pick, hset_remove, lib_hmap_move, lib_hset_move};

/// `lib_find` gives a key's slot and 1, or the first empty slot on its way and 0, and only reads.
pub fn find()
    ensures { FindLaw }
{}

/// `lib_keys` gives the keys in the order of their slots, in a new block; they are all, each once.
pub fn keys()
    ensures made { KeysLaw }
    ensures each { EachLaw }
    ensures words { KeyWordsLaw }
    ensures set { SetKeysLaw }
    ensures map { MapKeysLaw }
{}

/// `lib_hset_move` and `lib_hmap_move` move the keys, and in maps their values, to a new table with no slot gone.
pub fn grow()
    ensures set { MoveLaw 2 lib_hset_move }
    ensures map { MoveLaw 3 lib_hmap_move }
{}

/// `hset_insert` puts a key into a set's table, which moves to a new block where too few slots are empty.
pub fn insert()
    ensures { InsertLaw }
{}

/// `hmap_put` puts a value at a key of a map's table, which moves likewise.
pub fn put()
    ensures { PutLaw }
{}

/// `hset_empty` and `hmap_empty` make a block of eight empty slots.
pub fn empty()
    ensures set { EmptyLaw 2 hset_empty }
    ensures map { EmptyLaw 3 hmap_empty }
{}

/// `hset_has` and `hmap_has` tell whether a key is there, and only read.
pub fn has()
    ensures set { HasLaw 2 hset_has }
    ensures map { HasLaw 3 hmap_has }
{}

/// `hset_remove` and `hmap_del` give the table without a key, whose slot is then gone.
pub fn remove()
    ensures set { RemoveLaw 2 hset_remove }
    ensures map { RemoveLaw 3 hmap_del }
{}

/// `hset_copy` and `hmap_copy` give the same words in a new block.
pub fn copy()
    ensures set { CopyLaw 2 hset_copy }
    ensures map { CopyLaw 3 hmap_copy }
{}

/// `hset_elems` and `hmap_keys` give an array of the keys, in a new block.
pub fn elems()
    ensures set { ElemsLaw 2 hset_elems }
    ensures map { ElemsLaw 3 hmap_keys }
{}

/// `hset_pick` gives some key, and only reads.
pub fn pick()
    ensures { PickLaw hset_pick }
{}

/// `hmap_lookup` gives the value at a key that is there, and only reads.
pub fn lookup()
    ensures { LookupLaw hmap_lookup }
{}

/// Sets and maps with a key more or less, as tests and values at keys.
pub fn values()
    ensures sets { SetsAsTests }
    ensures maps { MapsAsTests }
{}

/// The rows of sets and of maps in hash tables, over procedures that have `lib_copy`, `lib_find`, `lib_keys` and the helper
/// that moves a table.
pub fn rows()
    ensures sets { AllHsetRows }
    ensures maps { AllHmapRows }
{}
