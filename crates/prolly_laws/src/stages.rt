//! What the stages of a pipeline send, and its writer takes.
ghost use Rattle.std.specs.Prelude.{ℕ, suc, ◌<◌, ◌≤◌, ◌^◌, Bool, List, length};
ghost use Rattle.prolly_entry.specs.declared.version.Version.{Version};
ghost use Rattle.prolly_entry.specs.Pair.{Pair};
ghost use Rattle.prolly_entry.specs.Cut.{Cut};
ghost use Rattle.prolly_tree.specs.Tree.{level_count};
ghost use Rattle.prolly_tree.specs.Chunk.{Chunk};
ghost use Rattle.prolly_tree.specs.Events.{FaultSendsPrefix, StageStep};
ghost use Rattle.prolly_tree.specs.Pipeline.{StagesMakeTree, EnoughStages, WriterTakesPrefix};

/// The stages, one behind another, make the tree.
pub fn stages_make_the_tree()
    ensures { (cut : Cut) (version : Version) (m : List Pair) (n : ℕ) →
        length m < 2 ^ 64 → StagesMakeTree cut version m n }
{}

/// Where the stages are as many as the tree has levels, they send its chunks, and the root last.
pub fn enough_stages_send_the_file()
    ensures { (cut : Cut) (version : Version) (m : List Pair) (n : ℕ) →
        length m < 2 ^ 64 → level_count cut version m ≤ suc n → EnoughStages cut version m n }
{}

/// What a stage sends at a fault is a prefix of what it sends of a longer input.
pub fn faults_send_a_prefix()
    ensures { (cut : Cut) (version : Version) → FaultSendsPrefix cut version }
{}

/// What a stage sends goes on event by event.
pub fn stages_go_on()
    ensures { (is_boundary : Chunk → Bool) (event_of : List Chunk → Chunk) (below : ℕ)
        (events : List Chunk) (e : Chunk) →
        StageStep is_boundary event_of below events e }
{}

/// Of a prefix of a list the writer takes a prefix.
pub fn writers_take_a_prefix()
    ensures { WriterTakesPrefix }
{}
