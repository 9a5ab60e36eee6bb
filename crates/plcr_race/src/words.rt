//! The words of the command line.

/// What is to be raced.
#[derive(Clone, Copy, Debug, PartialEq, Eq)]
pub enum Task {
    /// Loads at the end and unloads at a place, counted from 1, of a list of so many nodes, so
    /// often.
    Changes {
        nodes: u32,
        place: u32,
        rounds: u32,
    },
    /// Walks in a list of so many nodes by so many readers, each so often.
    Walks {
        nodes: u32,
        readers: u32,
        rounds: u32,
    },
}

/// The race that the words name, if they are of one of its forms. The first image is unloaded where
/// no place is named.
pub fn read(words: &[String]) -> Option<Task> {
    match words {
        [kind, nodes, rounds] if kind.as_str() == "changes" => {
            let nodes = nodes.parse().ok()?;
            let rounds = rounds.parse().ok()?;
            Some(Task::Changes {
                nodes,
                place: 1,
                rounds,
            })
        }
        [kind, nodes, place, rounds] if kind.as_str() == "changes" => {
            let nodes = nodes.parse().ok()?;
            let place = place.parse().ok()?;
            let rounds = rounds.parse().ok()?;
            Some(Task::Changes {
                nodes,
                place,
                rounds,
            })
        }
        [kind, nodes, readers, rounds] if kind.as_str() == "walks" => {
            let nodes = nodes.parse().ok()?;
            let readers = readers.parse().ok()?;
            let rounds = rounds.parse().ok()?;
            Some(Task::Walks {
                nodes,
                readers,
                rounds,
            })
        }
        _ => None,
    }
}
