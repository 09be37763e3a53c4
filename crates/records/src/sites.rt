// Sites: where something stands, and what observes there.
ghost use Rattle.std.specs.Prelude.{◌≡◌, length};
ghost use Rattle.records.specs.Sites.{read_position, read_site, site_named, blank_site, site_order};
ghost use Rattle.records.specs.Copies.{position_text, site_text};
ghost use Rattle.records.specs.KeyOrders.{site_order_lem};

use crate::keys::{Blank, Ignored, SiteKey, read_site_columns, write_site_columns};
use codes::letters::{Technique, read_code};
use codes::texts::{check_blank, read_description, read_text};
use fields::angles::{read_height, read_latitude, read_longitude, write_angle, write_height};
use refusals::Fault;
use std::cmp::Ordering;
use tables::table::Record;

// A site. Angles are in tenths of a second, the height in tenths of a metre.
#[derive(Clone, Copy)]
pub struct Site {
    pub key: SiteKey,
    pub monument: [u8; 9],
    pub technique: Technique,
    pub description: [u8; 22],
    pub longitude: i32,
    pub latitude: i32,
    pub height: i32,
}

// Sites in the order of their codes, then of their points. The blank site has the first technique, Combined.
impl Record for Site {
    ghost order = { site_order };

    ghost bare = { blank_site };

    ghost lawful = { site_order_lem };

    fn compare(&self, other: &Site) -> Ordering {
        self.key.cmp(&other.key)
    }

    fn blank() -> Site {
        Site {
            key: SiteKey::blank(),
            monument: [b' '; 9],
            technique: Technique::Combined,
            description: [b' '; 22],
            longitude: 0,
            latitude: 0,
            height: 0,
        }
    }
}

// A longitude, a latitude and a height, with blanks between and after them: 36 columns.
fn read_position(columns: &[u8]) -> Result<(i32, i32, i32), Fault>
    requires { length columns.now ≡ 36 }
    ensures { result ≡ read_position columns.now }
{
    let longitude = read_longitude(&columns[0..11])?;
    check_blank(&columns[11..12])?;
    let latitude = read_latitude(&columns[12..23])?;
    check_blank(&columns[23..24])?;
    let height = read_height(&columns[24..31])?;
    check_blank(&columns[31..36])?;
    Ok((longitude, latitude, height))
}

// The site of a data line's 80 columns. The first column, which says that it is one, is not looked at.
pub fn read_site(line: &[u8; 80]) -> Result<Site, Fault>
    ensures { result ≡ read_site line.now }
{
    let key = read_site_columns::<Blank>(&line[1..8])?;
    check_blank(&line[8..9])?;
    let monument = read_text(&line[9..18])?;
    check_blank(&line[18..19])?;
    let technique = read_code(&line[19..20])?;
    check_blank(&line[20..21])?;
    let description = read_description(&line[21..43])?;
    check_blank(&line[43..44])?;
    let (longitude, latitude, height) = read_position(&line[44..80])?;
    Ok(Site {
        key,
        monument,
        technique,
        description,
        longitude,
        latitude,
        height,
    })
}

// A blank site with the key that a data line names; only the columns of its two codes are looked at.
pub fn read_site_key(line: &[u8; 80]) -> Result<Site, Fault>
    ensures { result ≡ site_named line.now }
{
    let key = read_site_columns::<Ignored>(&line[1..8])?;
    Ok(Site {
        key,
        ..Site::blank()
    })
}

// A longitude, a latitude and a height, in 36 columns.
fn write_position(longitude: i32, latitude: i32, height: i32) -> [u8; 36]
    ensures { result ≡ position_text longitude latitude height }
{
    let mut out = [b' '; 36];
    out[24..31].copy_from_slice(&write_height(height));
    out[12..23].copy_from_slice(&write_angle(latitude));
    out[0..11].copy_from_slice(&write_angle(longitude));
    out
}

// The 80 columns of a site's data line in a fair copy.
pub fn write_site(s: &Site) -> [u8; 80]
    ensures { result ≡ site_text s.now }
{
    let mut out = [b' '; 80];
    out[44..80].copy_from_slice(&write_position(s.longitude, s.latitude, s.height));
    out[21..43].copy_from_slice(&s.description);
    out[19] = s.technique.letter();
    out[9..18].copy_from_slice(&s.monument);
    out[1..8].copy_from_slice(&write_site_columns(&s.key));
    out
}
