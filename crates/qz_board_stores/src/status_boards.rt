//! A call's board.
ghost use Rattle.std.specs.Prelude.{◌≡◌, ◌++◌, length, drop};
ghost use Rattle.qz_board.specs.Boards.{posted, offered, writer_basis, writer_board, reader_board};
ghost use Rattle.qz_board_looks.specs.Watches.{watched_basis};

mod calling;

use crate::subject::TriggerHistories;
use qz_board::BoardWriter;
use qz_board_looks::Watch;
use std::sync::Wait;

/// The board of a call over its trigger store: the writer, and a reader that is to look a planned number of times. The store
/// is elsewhere. It may be laid under the board for a while: it posts then what it does. The board keeps the handle `R`, since
/// a post and the end of the writer wait for a reader that is just looking.
pub struct StatusBoard<R: Wait + Drop> {
    rt: R,
    writer: BoardWriter<TriggerHistories>,
    watch: Watch<TriggerHistories>,
    // What was posted begins what was offered.
    ghost begins: { posted writer ++ drop (length (posted writer)) (offered writer) ≡ offered writer },
    ghost one_board: { reader_board watch.looks.reader ≡ writer_board writer },
    ghost one_basis: { watched_basis watch ≡ writer_basis writer },
}

impl<R: Wait + Drop> Drop for StatusBoard<R> {
    fn drop(self) {
        let StatusBoard {
            rt,
            writer,
            watch: _,
        } = self;
        writer.close(&rt);
    }
}
