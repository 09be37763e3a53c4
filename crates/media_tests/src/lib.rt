// The media on examples: filled, refused at their capacity, opened again, and made over bytes of any kind.
#![tactic(auto)]

#[cfg(test)]
mod tests {
    use media::blocks::Blocks;
    use media::bytes::Bytes;
    use media::row::Row;
    use media::runs::{append_line, append_run, replace_content};
    use media::{Medium, Source};

    #[test]
    fn bytes_are_read_at_their_places(rt: HostRuntime) {
        let text = Bytes::new(b"abc");
        assert_eq!(rt; text.length(), 3);
        assert_eq!(rt; text.byte(2), Some(b'c'));
        assert_eq!(rt; text.byte(3), None);
    }

    #[test]
    fn row_refuses_at_its_capacity(rt: HostRuntime) {
        let mut places = [0u8; 4];
        let mut row = Row::new(&mut places);
        assert!(rt; append_run(&mut row, b"abc").is_ok());
        assert!(rt; append_line(&mut row, b"d").is_err());
        assert_eq!(rt; row.length(), 3);
        assert!(rt; row.append(b'd').is_ok());
        assert!(rt; row.append(b'e').is_err());
        assert_eq!(rt; row.byte(3), Some(b'd'));
        assert_eq!(rt; row.byte(4), None);
    }

    #[test]
    fn row_takes_any_fill(rt: HostRuntime) {
        let mut places = [b'x', b'y'];
        let mut row = Row::filled(&mut places, 1000);
        assert_eq!(rt; row.length(), 2);
        assert!(rt; replace_content(&mut row, b"abc").is_err());
        assert_eq!(rt; row.byte(1), Some(b'y'));
        assert!(rt; replace_content(&mut row, b"a").is_ok());
        assert_eq!(rt; row.byte(0), Some(b'a'));
        assert_eq!(rt; row.byte(1), None);
    }

    #[test]
    fn nothing_fits_into_no_bytes(rt: HostRuntime) {
        let mut none = [0u8; 0];
        let mut row = Row::new(&mut none);
        assert!(rt; row.append(1).is_err());
        let mut few = [1u8; 511];
        let mut blocks = Blocks::new(&mut few);
        assert_eq!(rt; blocks.capacity(), 0);
        assert!(rt; blocks.append(1).is_err());
        assert!(rt; append_run(&mut blocks, b"").is_ok());
    }

    #[test]
    fn blocks_are_filled_and_opened_again(rt: HostRuntime) {
        let mut raw = [0u8; 1100];
        let mut blocks = Blocks::new(&mut raw);
        for i in 0u8..255 {
            assert!(rt; append_run(&mut blocks, &[i; 4]).is_ok());
        }
        assert!(rt; blocks.append(1).is_err());
        let opened = blocks.reopened();
        assert_eq!(rt; opened.length(), 1020);
        assert_eq!(rt; opened.byte(509), Some(127));
        assert_eq!(rt; opened.byte(1019), Some(254));
    }

    #[test]
    fn bytes_left_behind_stay_out(rt: HostRuntime) {
        let mut raw = [0u8; 1024];
        let mut blocks = Blocks::new(&mut raw);
        assert!(rt; append_run(&mut blocks, &[5; 700]).is_ok());
        blocks.empty();
        assert!(rt; append_run(&mut blocks, &[6; 510]).is_ok());
        let mut opened = blocks.reopened();
        assert_eq!(rt; opened.length(), 510);
        assert!(rt; opened.append(7).is_ok());
        assert_eq!(rt; opened.length(), 511);
    }

    #[test]
    fn scrambled_bytes_hold_nothing(rt: HostRuntime) {
        let mut raw = [255u8; 512];
        let mut blocks = Blocks::new(&mut raw);
        assert_eq!(rt; blocks.length(), 0);
        assert!(rt; append_line(&mut blocks, b"a").is_ok());
        assert_eq!(rt; blocks.length(), 2);
        assert_eq!(rt; blocks.reopened().byte(1), Some(10));
    }

    #[test]
    fn payload_past_the_count_is_zero(rt: HostRuntime) {
        let mut raw = [0u8; 512];
        raw[1] = 1;
        raw[2] = 9;
        assert_eq!(rt; Blocks::new(&mut raw).length(), 1);
        raw[3] = 9;
        assert_eq!(rt; Blocks::new(&mut raw).length(), 0);
    }
}
