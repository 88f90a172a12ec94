//! Laws of workers that stand one behind another, each a function that does nothing and whose
//! contract is the law. What one worker sent is what the next one received, so the laws join what
//! the stages ensure to what the last one has sent of the pairs that the first received.
ghost use Rattle.std.specs.Prelude.{ℕ, ◌<◌, ◌^◌, List, length};
ghost use Rattle.prolly_entry.specs.declared.version.Version.{Version};
ghost use Rattle.prolly_entry.specs.Pair.{Pair};
ghost use Rattle.prolly_entry.specs.Cut.{Cut};
ghost use Rattle.prolly_tree.specs.Events.{Closing};
ghost use Rattle.prolly_stage.specs.Workers.{WorkersJoin, StageFollows, WriterTakes};

/// Where the second stage keeps prefixes, two workers, one behind the other, do what one worker of
/// both stages would do.
pub fn workers_join<A, B, C>()
    ensures { (first : Closing → List A → List B) (second : Closing → List B → List C) →
        WorkersJoin first second }
{}

/// A stage behind the pipeline of the levels below makes the pipeline of one level more.
pub fn stages_follow()
    ensures { (cut : Cut) (version : Version) (n : ℕ) → StageFollows cut version n }
{}

/// What the writer behind a pipeline takes are the chunks of the tree.
pub fn writers_take_the_tree()
    ensures { (cut : Cut) (version : Version) (m : List Pair) (n : ℕ) → length m < 2 ^ 64 →
        WriterTakes cut version m n }
{}
